//! What a directive asks for.
ghost use Rattle.std.specs.Prelude.{◌≡◌};
ghost use Rattle.verilog_directives.specs.Orders as spec;

use crate::condition::Condition;
use crate::left::{Left, Role};
use text_scan::Token;

#[derive(Clone, Copy)]
pub(crate) enum Order<'s> {
    /// That nothing is read after this item.
    End(Left),
    /// Nothing, where text isn't read.
    Pass,
    /// Something that isn't obeyed, with the word that touches the `` ` ``.
    Show,
    /// A `` ` `` that no word touches.
    ShowAlone,
    /// A definition with a text.
    ShowText,
    /// That its line is passed over.
    PassLine,
    Define(&'s [u8]),
    Undefine(&'s [u8]),
    /// That this condition is opened.
    Open(Condition),
    /// That this condition is opened, whose test isn't looked at.
    OpenUnread(Condition),
    /// That the innermost condition is at its next branch.
    Elsif(Condition),
    /// That the innermost condition is at its last branch, or at one whose test isn't looked at.
    Else(Condition),
    Close,
}

impl<'s> Order<'s> {
    /// How many tokens are gone over, from the `` ` `` on.
    pub(crate) fn size(self) -> usize
        ensures { result ≡ spec.size self.entry }
    {
        match self {
            Order::End(_) => 0,
            Order::Pass | Order::ShowAlone | Order::ShowText | Order::PassLine => 1,
            Order::Show | Order::OpenUnread(_) | Order::Else(_) | Order::Close => 2,
            Order::Define(_) | Order::Undefine(_) | Order::Open(_) | Order::Elsif(_) => 3,
        }
    }

    /// The item that is left of the directive, if any is.
    pub(crate) fn shown(self, mark: Token) -> Option<Left>
        ensures { result ≡ spec.shown mark self.entry }
    {
        match self {
            Order::End(item) => Some(item),
            Order::Show | Order::ShowAlone | Order::ShowText => Some(Left {
                token: mark,
                role: Role::Macro,
            }),
            Order::Pass
            | Order::PassLine
            | Order::Define(_)
            | Order::Undefine(_)
            | Order::Open(_)
            | Order::OpenUnread(_)
            | Order::Elsif(_)
            | Order::Else(_)
            | Order::Close => None,
        }
    }
}
