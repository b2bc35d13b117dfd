ghost use Rattle.std.specs.Prelude.{◌≡◌};
ghost use Rattle.verilog_modules.specs.Ports.{is_absent};

use name_index::Names;
use std::alloc::Global;
use std::marker::Model;
use text_scan::{Direction, Items, NoMemory, Text};
use verilog_source::Port;

/// The ports of a module in the order of its port list, found by their names.
#[derive(Drop)]
pub struct Ports {
    ports: Vec<Port>,
    names: Names,
}

impl Model for Ports {
    ghost use Rattle.std.specs.Prelude.{List};
    ghost use Rattle.verilog_source.specs.declared.module.Port.{Port};

    ghost Value = { List Port };

    ghost use Rattle.verilog_modules.specs.Held.{ports_of, IsHeld};

    ghost view = { ports_of };

    ghost invariant = { IsHeld };
}

impl Ports {
    ghost use Rattle.std.specs.Prelude.{◌≡◌, [], ◌∷◌, ◌++◌, length, OnOk, OnErr, Some, None, IfOk, cond, is_some};
    ghost use Rattle.name_index.specs.Places.{is_known};
    ghost use Rattle.verilog_modules.specs.Ports as spec;

    pub fn new(alloc: Global) -> Ports
        ensures { result ≡ [] }
    {
        Ports {
            ports: Vec::new(alloc),
            names: Names::new(alloc),
        }
    }

    pub fn contains(&self, name: &[u8]) -> bool
        ensures { result ≡ is_known name.now (spec.names_of self.now) }
    {
        self.names.contains(name)
    }

    /// Puts a port behind the others. After a refusal the ports are as they were.
    #[tactic(auto, using(crate::proofs::PortLists::one_more_name))]
    pub fn push(&mut self, alloc: Global, name: &[u8], direction: Direction) -> Result<(), NoMemory>
        ensures ok { OnOk result (self.new ≡ self.old ++ record { name = name.now; direction = direction } ∷ []) }
        ensures err { OnErr result (self.new ≡ self.old) }
    {
        let text = Text::from_bytes(alloc, name)?;
        self.ports.try_reserve(1)?;
        self.names.push(alloc, name)?;
        self.ports.push_reserved(Port {
            name: text,
            direction,
        });
        Ok(())
    }

    /// Gives the port of this name its direction; false where no port has the name, or it has a direction.
    #[tactic(auto, unfolding(crate::specs::Ports::directed))]
    pub fn direct(&mut self, name: &[u8], direction: Direction) -> bool
        ensures { spec.directed self.old name.now direction ≡ cond result (Some self.new) None }
    {
        match self.names.place_of(name) {
            None => false,
            Some(at) => {
                if self.ports.len() <= at || !is_absent(self.ports[at].direction) {
                    return false;
                }
                self.ports[at].direction = direction;
                true
            }
        }
    }

    /// The name of the first port without a direction.
    #[tactic(auto, using(crate::proofs::PortLists::next_port, crate::proofs::PortLists::undirected_here, crate::proofs::PortLists::no_more_ports))]
    pub fn undirected(&self, alloc: Global) -> Result<Option<Text>, NoMemory>
        ensures { IfOk result (λ name. name ≡ spec.undirected self.now) }
    {
        let ports = self.ports.as_slice();
        for at in 0..ports.len() {
            if is_absent(ports[at].direction) {
                let name = ports[at].name.copied(alloc)?;
                return Ok(Some(name));
            }
        }
        Ok(None)
    }

    pub fn into_items(self) -> Items<Port>
        ensures { result ≡ self }
    {
        let Ports { ports, names: _ } = self;
        Items::from_vec(ports)
    }
}

fn is_absent(direction: Direction) -> bool
    ensures { result ≡ is_absent direction }
{
    matches!(direction, Direction::Absent)
}
