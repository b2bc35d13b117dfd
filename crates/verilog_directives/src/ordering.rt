//! What a directive asks for.
ghost use Rattle.std.specs.Prelude.{◌≡◌, ◌≤◌, true, false, Ok, Err, OnOk, IfErr, MatchResult, if◌then◌else◌};
ghost use Rattle.text_scan.specs.Left.{IsSliceOf, is_end as spec_is_end};
ghost use Rattle.verilog_directives.specs.Conditions.{is_read};
ghost use Rattle.verilog_directives.specs.Directives as spec;
ghost use Rattle.verilog_directives.specs.Left as left;
ghost use Rattle.verilog_directives.specs.Orders.{Asks};
ghost use Rattle.verilog_directives.specs.declared.order.Order.TheVariants as orders;
ghost use Rattle.verilog_directives.specs.Signs as signs;
ghost use Rattle.verilog_directives.specs.Words as words;

use crate::condition::Condition;
use crate::directives::Directives;
use crate::left::{Left, Role};
use crate::order::Order;
use crate::signs::{is_end, name_of, word_after};
use crate::word::Directive;
use text_scan::{Limits, Token};

fn last<'s>(token: Token, role: Role) -> Order<'s>
    ensures { result ≡ orders.End (left.item role token) }
{
    Order::End(Left { token, role })
}

fn holds(wanted: bool, is_defined: bool) -> bool
    ensures { result ≡ left.holds wanted is_defined }
{
    if wanted { is_defined } else { !is_defined }
}

// Whether the token begins on the line of the `` ` ``.
fn is_beside(mark: Token, token: Token) -> bool
    ensures { result ≡ left.is_beside mark token }
{
    token.span.line == mark.span.line && !is_end(token.kind)
}

// The name of a token in a directive's name's place, or the last item where it has none.
#[tactic(auto, unfolding(crate::specs::Left::name_in_place), using(crate::proofs::Orders::named_no_end))]
fn name_in_place<'s>(source: &'s [u8], limits: Limits, token: Token) -> Result<&'s [u8], Left>
    requires { IsSliceOf source.now token }
    ensures name { MatchResult result (λ name. left.name_in_place source.now limits token ≡ Ok name.now) (λ last. left.name_in_place source.now limits token ≡ Err last) }
    ensures open { OnOk result (spec_is_end token.kind ≡ false) }
    ensures last { IfErr result (λ last. left.is_last last ≡ true) }
    ensures slice { IfErr result (λ last. IsSliceOf source.now last.token) }
{
    let Some(name) = name_of(source, token) else {
        return Err(Left {
            token,
            role: Role::Misplaced,
        });
    };
    if name.len() > limits.name as usize {
        return Err(Left {
            token,
            role: Role::LongName,
        });
    }
    Ok(name)
}

impl<'s> Directives<'s> {
    // The name of the directive, or the last item where none may be.
    fn named(&mut self, mark: Token) -> Result<&'s [u8], Left>
        requires { 2 ≤ spec.held self.old }
        ensures looks { spec.OnlyLooks self.old self.new }
        ensures held { OnOk result (3 ≤ spec.held self.new) }
        ensures name { MatchResult result
            (λ name. left.name_in_place self.old.tokens.source.now self.old.limits (left.after 1 mark (spec.rest self.old)) ≡ Ok name.now)
            (λ last. left.name_in_place self.old.tokens.source.now self.old.limits (left.after 1 mark (spec.rest self.old)) ≡ Err last) }
        ensures last { IfErr result (λ last. left.is_last last ≡ true) }
        ensures slice { IfErr result (λ last. IsSliceOf self.old.tokens.source.now last.token) }
    {
        let token = self.tokens.at(2);
        name_in_place(self.tokens.source, self.limits, token)
    }

    #[tactic(auto, unfolding(crate::specs::Left::opening))]
    fn opening(&mut self, mark: Token, wanted: bool) -> Order<'s>
        requires held { 2 ≤ spec.held self.old }
        requires slice { IsSliceOf self.old.tokens.source.now mark }
        ensures looks { spec.OnlyLooks self.old self.new }
        ensures asks { Asks self.old.tokens.source.now (spec.state self.old) mark (spec.held self.new) result
            (left.opening self.old.tokens.source.now self.old.limits (spec.state self.old) mark (spec.rest self.old) wanted) }
    {
        if self.conditions.len() >= self.limits.nesting as usize {
            return last(mark, Role::TooDeep);
        }
        if !self.conditions.is_read() {
            return Order::OpenUnread(Condition::opened(false));
        }
        match self.named(mark) {
            Err(item) => Order::End(item),
            Ok(name) => {
                let is_defined = self.names.contains(name);
                Order::Open(Condition::opened(holds(wanted, is_defined)))
            }
        }
    }

    #[tactic(auto, unfolding(crate::specs::Left::elsif_turn))]
    fn elsif(&mut self, mark: Token) -> Order<'s>
        requires held { 2 ≤ spec.held self.old }
        requires slice { IsSliceOf self.old.tokens.source.now mark }
        ensures looks { spec.OnlyLooks self.old self.new }
        ensures asks { Asks self.old.tokens.source.now (spec.state self.old) mark (spec.held self.new) result
            (left.elsif_turn self.old.tokens.source.now self.old.limits (spec.state self.old) mark (spec.rest self.old) self.old.conditions) }
    {
        let Some(condition) = self.conditions.innermost() else {
            return last(mark, Role::Misplaced);
        };
        if condition.is_else {
            return last(mark, Role::Misplaced);
        }
        if !self.conditions.is_read_outside() {
            return Order::Else(condition.at_elsif(false));
        }
        match self.named(mark) {
            Err(item) => Order::End(item),
            Ok(name) => Order::Elsif(condition.at_elsif(self.names.contains(name))),
        }
    }

    #[tactic(auto, unfolding(crate::specs::Left::else_turn))]
    fn last_branch(&self, mark: Token) -> Order<'s>
        requires held { 2 ≤ spec.held self.now }
        requires slice { IsSliceOf self.now.tokens.source.now mark }
        ensures asks { Asks self.now.tokens.source.now (spec.state self.now) mark (spec.held self.now) result (left.else_turn (spec.state self.now) mark self.now.conditions) }
    {
        let Some(condition) = self.conditions.innermost() else {
            return last(mark, Role::Misplaced);
        };
        if condition.is_else {
            return last(mark, Role::Misplaced);
        }
        Order::Else(condition.at_else())
    }

    #[tactic(auto, unfolding(crate::specs::Left::endif_turn))]
    fn closing(&self, mark: Token) -> Order<'s>
        requires held { 2 ≤ spec.held self.now }
        requires slice { IsSliceOf self.now.tokens.source.now mark }
        ensures asks { Asks self.now.tokens.source.now (spec.state self.now) mark (spec.held self.now) result (left.endif_turn (spec.state self.now) mark self.now.conditions) }
    {
        if self.conditions.innermost().is_some() {
            Order::Close
        } else {
            last(mark, Role::Misplaced)
        }
    }

    // Whether a name stands on the line after the word of `define`.
    #[tactic(auto, unfolding(crate::specs::Left::is_defined))]
    fn is_defined(&mut self, mark: Token) -> bool
        requires { 2 ≤ spec.held self.old }
        ensures looks { spec.OnlyLooks self.old self.new }
        ensures value { result ≡ left.is_defined self.old.tokens.source.now mark (spec.rest self.old) }
        ensures held { result ≡ true → 3 ≤ spec.held self.new }
    {
        let name = self.tokens.at(2);
        is_beside(mark, name) && name_of(self.tokens.source, name).is_some()
    }

    // Whether a text stands on the line after the name.
    #[tactic(auto, unfolding(crate::specs::Left::has_text))]
    fn has_text(&mut self, mark: Token) -> bool
        requires { 3 ≤ spec.held self.old }
        ensures looks { spec.OnlyLooks self.old self.new }
        ensures value { result ≡ left.has_text mark (spec.rest self.old) }
    {
        let token = self.tokens.at(3);
        is_beside(mark, token)
    }

    #[tactic(auto, unfolding(crate::specs::Left::define_turn))]
    fn define(&mut self, mark: Token) -> Order<'s>
        requires held { 2 ≤ spec.held self.old }
        requires slice { IsSliceOf self.old.tokens.source.now mark }
        ensures looks { spec.OnlyLooks self.old self.new }
        ensures asks { Asks self.old.tokens.source.now (spec.state self.old) mark (spec.held self.new) result
            (left.define_turn self.old.tokens.source.now self.old.limits (spec.state self.old) mark (spec.rest self.old)) }
    {
        if !self.is_defined(mark) {
            return Order::Show;
        }
        if self.has_text(mark) {
            return Order::ShowText;
        }
        match self.named(mark) {
            Err(item) => Order::End(item),
            Ok(name) => Order::Define(name),
        }
    }

    #[tactic(auto, unfolding(crate::specs::Left::undef_turn))]
    fn undef(&mut self, mark: Token) -> Order<'s>
        requires held { 2 ≤ spec.held self.old }
        requires slice { IsSliceOf self.old.tokens.source.now mark }
        ensures looks { spec.OnlyLooks self.old self.new }
        ensures asks { Asks self.old.tokens.source.now (spec.state self.old) mark (spec.held self.new) result
            (left.undef_turn self.old.tokens.source.now self.old.limits (spec.state self.old) mark (spec.rest self.old)) }
    {
        match self.named(mark) {
            Err(item) => Order::End(item),
            Ok(name) => Order::Undefine(name),
        }
    }

    // The order, where text is read.
    fn where_read(&self, order: Order<'s>) -> Order<'s>
        ensures { result ≡ (if is_read self.now.conditions then order.entry else orders.Pass) }
    {
        if self.conditions.is_read() {
            order
        } else {
            Order::Pass
        }
    }

    #[tactic(auto, unfolding(crate::specs::Left::directive_turn), using(crate::proofs::Orders::asks_where_read))]
    fn order_of(&mut self, mark: Token, directive: Directive) -> Order<'s>
        requires held { 1 ≤ spec.held self.old }
        requires slice { IsSliceOf self.old.tokens.source.now mark }
        requires word { (directive ≡ Directive.Alone → ⊥) → 2 ≤ spec.held self.old }
        ensures looks { spec.OnlyLooks self.old self.new }
        ensures asks { Asks self.old.tokens.source.now (spec.state self.old) mark (spec.held self.new) result
            (left.directive_turn self.old.tokens.source.now self.old.limits (spec.state self.old) mark (spec.rest self.old) directive) }
    {
        match directive {
            Directive::Ifdef => self.opening(mark, true),
            Directive::Ifndef => self.opening(mark, false),
            Directive::Elsif => self.elsif(mark),
            Directive::Else => self.last_branch(mark),
            Directive::Endif => self.closing(mark),
            Directive::Define => {
                let order = self.define(mark);
                self.where_read(order)
            }
            Directive::Undef => {
                let order = self.undef(mark);
                self.where_read(order)
            }
            Directive::PassedOver => self.where_read(Order::PassLine),
            Directive::Other => self.where_read(Order::Show),
            Directive::Alone => self.where_read(Order::ShowAlone),
        }
    }

    /// What the directive of the next token, a `` ` ``, asks for.
    #[tactic(auto, using(crate::proofs::Orders::after_first, crate::proofs::Orders::word_no_end_of))]
    pub(crate) fn order(&mut self, mark: Token) -> Order<'s>
        requires held { 1 ≤ spec.held self.old }
        requires slice { IsSliceOf self.old.tokens.source.now mark }
        ensures looks { spec.OnlyLooks self.old self.new }
        ensures asks { Asks self.old.tokens.source.now (spec.state self.old) mark (spec.held self.new) result
            (left.directive_turn self.old.tokens.source.now self.old.limits (spec.state self.old) mark (spec.rest self.old)
            (words.directive_of (signs.word_after self.old.tokens.source.now mark (left.after 0 mark (spec.rest self.old))))) }
    {
        let word = self.tokens.at(1);
        let directive = Directive::of(word_after(self.tokens.source, mark, word));
        self.order_of(mark, directive)
    }
}
