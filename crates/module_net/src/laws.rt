//! Laws of modules' networks. Each function's contract is the law; it does nothing.
ghost use Rattle.std.specs.Prelude.{◌≡◌, ℕ, List, length, ◌↔◌};
ghost use Rattle.tern_core.specs.declared.tern.Tern.{Tern};
ghost use Rattle.verilog_source.specs.declared.module.Module.{Module};
ghost use Rattle.udp_table.specs.Table.{Table};
ghost use Rattle.gate_settle.specs.Network.{IsSettled, IsMoveOf, HasOneSettled};
ghost use Rattle.module_net.specs.declared.refusal.GateRefusal.{GateRefusal};
ghost use Rattle.module_net.specs.Building.{NamedNetwork, IsNetOf, IsRefused};
ghost use Rattle.module_net.specs.Driving.{IsRefusedModule, IsAcceptedModule};
ghost use Rattle.module_net.specs.Meaning.{IsSettledModule, HasOneSettledModule, IsModuleMove, HasOneModuleMove};

/// The settled assignments and the moves of a module's network are those that the module's elements have by the names
/// of its nets. Where the network has just one settled assignment for given pins and states, so has the module, and from
/// given nets and states there is no second move to the same pins.
pub fn elements_settle()
    ensures settled { (m : Module) (tables : List Table) (inputs : List (List ℕ)) (supplies : List (List ℕ × Tern)) (net : NamedNetwork)
        → IsNetOf m tables inputs supplies net
        → (pins states nets : List Tern) → IsSettled net.network pins states nets ↔ IsSettledModule m tables inputs supplies pins states nets }
    ensures one { (m : Module) (tables : List Table) (inputs : List (List ℕ)) (supplies : List (List ℕ × Tern)) (net : NamedNetwork)
        → IsNetOf m tables inputs supplies net → HasOneSettled net.network → HasOneSettledModule m tables inputs supplies }
    ensures moved { (m : Module) (tables : List Table) (inputs : List (List ℕ)) (supplies : List (List ℕ × Tern)) (net : NamedNetwork)
        → IsNetOf m tables inputs supplies net → (pins old_nets old_states new_nets new_states : List Tern)
        → IsMoveOf net.network pins old_nets old_states new_nets new_states
        ↔ IsModuleMove m tables inputs supplies pins old_nets old_states new_nets new_states }
    ensures one_move { (m : Module) (tables : List Table) (inputs : List (List ℕ)) (supplies : List (List ℕ × Tern)) (net : NamedNetwork)
        → IsNetOf m tables inputs supplies net → (pins old_nets old_states : List Tern)
        → length old_states ≡ length net.network.state_nets → HasOneModuleMove m tables inputs supplies pins old_nets old_states }
{}

/// A module is refused for what its elements and the names of its nets say: the first refused element, else the first net
/// that gets a value twice, else the first that depends on itself. Where it makes a network there is none of these.
pub fn elements_refuse()
    ensures refused { (m : Module) (tables : List Table) (inputs : List (List ℕ)) (supplies : List (List ℕ × Tern)) (refusal : GateRefusal)
        → IsRefused m tables inputs supplies refusal ↔ IsRefusedModule m tables inputs supplies refusal }
    ensures accepted { (m : Module) (tables : List Table) (inputs : List (List ℕ)) (supplies : List (List ℕ × Tern)) (net : NamedNetwork)
        → IsNetOf m tables inputs supplies net → IsAcceptedModule m tables inputs supplies }
{}
