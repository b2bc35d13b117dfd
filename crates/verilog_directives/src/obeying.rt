//! The tokens that are left of a text.
ghost use Rattle.std.specs.Prelude.{◌≡◌, ◌<◌, ◌≤◌, ◌∷◌, true, false, length, drop, IfOk, OnOk, OnErr, IfSome, IfNone};
ghost use Rattle.text_scan.specs.Left.{IsSliceOf, is_end as spec_is_end};
ghost use Rattle.verilog_directives.specs.Directives as spec;
ghost use Rattle.verilog_directives.specs.Left as left;
ghost use Rattle.verilog_directives.specs.Lookahead.{to_come};
ghost use Rattle.verilog_directives.specs.Orders as orders;
ghost use Rattle.verilog_directives.specs.Signs as signs;
ghost use Rattle.verilog_directives.specs.Words as words;

use crate::conditions::Conditions;
use crate::directives::Directives;
use crate::left::{Left, Role};
use crate::line::Line;
use crate::lookahead::Lookahead;
use crate::names::DefinedNames;
use crate::order::Order;
use crate::region::Region;
use crate::signs::{is_end, is_mark, is_wrong};
use std::alloc::Global;
use text_scan::{Limits, NoMemory, Token};

fn plain(token: Token) -> Left
    ensures { result ≡ left.item Role.Plain token }
{
    Left {
        token,
        role: Role::Plain,
    }
}

impl<'s> Directives<'s> {
    // The text's end, which may not stand in an open condition.
    fn end_item(&self, token: Token) -> Left
        ensures { result ≡ left.end_item self.now.conditions token }
    {
        let role = match self.conditions.innermost() {
            None => Role::Plain,
            Some(_) => Role::Misplaced,
        };
        Left { token, role }
    }

    /// Stands before the first token that is left of the text. Of the limits it reads `nesting` and `name`.
    #[tactic(auto, unfolding(crate::specs::Directives::source, crate::specs::Directives::left, crate::specs::Left::left_of))]
    pub fn new(alloc: Global, source: &'s [u8], limits: &Limits) -> Directives<'s>
        ensures source { spec.source result ≡ source.now }
        ensures left { spec.left result ≡ left.left_of source.now limits.now }
    {
        Directives {
            tokens: Lookahead::new(source),
            limits: *limits,
            names: DefinedNames::new(alloc),
            conditions: Conditions::new(alloc),
            line: Line::Free,
            region: Region::Outside,
        }
    }

    // Does what a directive asks for, but for its tokens.
    fn effect(&mut self, alloc: Global, mark: Token, order: Order<'s>) -> Result<(), NoMemory>
        requires { orders.IsLawful self.old.tokens.source.now (spec.state self.old) order }
        ensures tokens { self.new.tokens ≡ self.old.tokens }
        ensures limits { self.new.limits ≡ self.old.limits }
        ensures ok { OnOk result (spec.state self.new ≡ orders.state_after (spec.state self.old) mark order.entry) }
        ensures err { OnErr result (spec.state self.new ≡ spec.state self.old) }
    {
        match order {
            Order::End(_) | Order::Pass => Ok(()),
            Order::Show | Order::ShowAlone => {
                self.line = self.region.line_behind(mark.span.line);
                Ok(())
            }
            Order::ShowText => {
                self.line = Line::Text(mark.span.line);
                Ok(())
            }
            Order::PassLine => {
                self.line = Line::Passed(mark.span.line);
                Ok(())
            }
            Order::Define(name) => self.names.insert(alloc, name),
            Order::Undefine(name) => {
                self.names.remove(name);
                Ok(())
            }
            Order::Open(condition) | Order::OpenUnread(condition) => {
                self.conditions.open(condition)
            }
            Order::Elsif(condition) | Order::Else(condition) => {
                self.conditions.change(condition);
                Ok(())
            }
            Order::Close => {
                self.conditions.close();
                Ok(())
            }
        }
    }

    // Does what a directive asks for; the item that is left of it, if any is.
    #[tactic(auto, unfolding(crate::specs::Directives::left))]
    fn carry_out(
        &mut self,
        alloc: Global,
        mark: Token,
        order: Order<'s>,
    ) -> Result<Option<Left>, NoMemory>
        requires lawful { orders.IsLawful self.old.tokens.source.now (spec.state self.old) order }
        requires held { orders.size order ≤ spec.held self.old }
        ensures source { self.new.tokens.source.now ≡ self.old.tokens.source.now }
        ensures limits { self.new.limits ≡ self.old.limits }
        ensures shown { IfOk result (λ shown. shown ≡ orders.shown mark order.entry) }
        ensures state { OnOk result (spec.state self.new ≡ orders.state_after (spec.state self.old) mark order.entry) }
        ensures to_come { OnOk result (to_come self.new.tokens ≡ drop (orders.size order.entry) (to_come self.old.tokens)) }
        ensures err { OnErr result (spec.left self.new ≡ spec.left self.old) }
    {
        self.effect(alloc, mark, order)?;
        self.tokens.skip(order.size());
        Ok(order.shown(mark))
    }

    // Obeys the directive of the next token, a `` ` ``; the item that is left of it, if any is.
    #[tactic(auto, unfolding(crate::specs::Directives::left), using(crate::proofs::Turns::carried, crate::proofs::Turns::fewer_left, crate::proofs::Turns::held_comes))]
    fn obey(&mut self, alloc: Global, mark: Token) -> Result<Option<Left>, NoMemory>
        requires held { 1 ≤ spec.held self.old }
        requires slice { IsSliceOf self.old.tokens.source.now mark }
        requires open { spec_is_end mark.kind ≡ false }
        ensures source { self.new.tokens.source.now ≡ self.old.tokens.source.now }
        ensures ok { IfOk result (λ shown.
            spec.left_by self.old.tokens.source.now self.old.limits
            (left.directive_turn self.old.tokens.source.now self.old.limits (spec.state self.old) mark (spec.rest self.old)
            (words.directive_of (signs.word_after self.old.tokens.source.now mark (left.after 0 mark (spec.rest self.old)))))
            (spec.rest self.old)
            ≡ spec.before shown (spec.left self.new)) }
        ensures last_stays { IfOk result (λ shown. IfSome shown (λ item. left.is_last item ≡ true → spec.left self.new ≡ spec.left self.old)) }
        ensures fewer { IfOk result (λ shown. IfNone shown (length (to_come self.new.tokens) < length (to_come self.old.tokens))) }
        ensures slice { IfOk result (λ shown. IfSome shown (λ item. IsSliceOf self.old.tokens.source.now item.token)) }
        ensures err { OnErr result (spec.left self.new ≡ spec.left self.old) }
    {
        let order = self.order(mark);
        self.carry_out(alloc, mark, order)
    }

    // Reads the next token; the item that is left of it, if any is.
    #[tactic(auto, unfolding(crate::specs::Directives::left))]
    fn turn(&mut self, alloc: Global) -> Result<Option<Left>, NoMemory>
        ensures source { self.new.tokens.source.now ≡ self.old.tokens.source.now }
        ensures ok { IfOk result (λ shown. spec.left self.old ≡ spec.before shown (spec.left self.new)) }
        ensures last_stays { IfOk result (λ shown. IfSome shown (λ item. left.is_last item ≡ true → spec.left self.new ≡ spec.left self.old)) }
        ensures fewer { IfOk result (λ shown. IfNone shown (length (to_come self.new.tokens) < length (to_come self.old.tokens))) }
        ensures slice { IfOk result (λ shown. IfSome shown (λ item. IsSliceOf self.new.tokens.source.now item.token)) }
        ensures err { OnErr result (spec.left self.new ≡ spec.left self.old) }
    {
        let token = self.tokens.take();
        if is_end(token.kind) {
            return Ok(Some(self.end_item(token)));
        }
        if is_wrong(self.tokens.source, token) {
            return Ok(Some(plain(token)));
        }
        if self.line.passes(token) {
            self.line = self.tokens.line_after(self.line, token);
            return Ok(None);
        }
        if self.line.keeps(token) {
            self.region = self.region.after_kept(self.tokens.source, token);
            return Ok(Some(plain(token)));
        }
        if is_mark(self.tokens.source, token) {
            self.tokens.put_back(token);
            return self.obey(alloc, token);
        }
        if self.conditions.is_read() {
            self.region = self.region.after_token(self.tokens.source, token);
            return Ok(Some(plain(token)));
        }
        Ok(None)
    }

    /// The next token that is left; after the last item that item again and again. Where memory is refused what is left
    /// is as before.
    #[tactic(auto, unfolding(crate::specs::Directives::source))]
    pub fn next(&mut self, alloc: Global) -> Result<Left, NoMemory>
        ensures source { spec.source self.new ≡ spec.source self.old }
        ensures next { IfOk result (λ item. spec.left self.old ≡ left.followed item (spec.left self.new)) }
        ensures last_stays { IfOk result (λ item. left.is_last item ≡ true → spec.left self.new ≡ spec.left self.old) }
        ensures slice { IfOk result (λ item. IsSliceOf (spec.source self.new) item.token) }
        ensures err { OnErr result (spec.left self.new ≡ spec.left self.old) }
    {
        loop {
            if let Some(item) = self.turn(alloc)? {
                return Ok(item);
            }
        }
    }

    /// Goes over some tokens that are left, all of them plain, which say nothing to a reader that waits for a word that
    /// begins with `end`: other words, and signs. It goes over many at once where text is read.
    pub fn skim(&mut self)
        ensures source { spec.source self.new ≡ spec.source self.old }
        ensures skims { spec.GoesOverFillers self.old self.new }
    {
        if self.conditions.is_read() {
            self.tokens.skim(self.line.number());
        }
    }
}
