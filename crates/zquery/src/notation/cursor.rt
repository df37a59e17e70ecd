// The tokens that are not yet read.
ghost use Rattle.std.specs.Prelude.{◌≡◌, ◌∷◌, [], drop, IfSome, IfNone};

use crate::notation::token::Token;
use std::marker::Model;

#[derive(Drop)]
pub(crate) struct Cursor<'a> {
    left: &'a [Token],
}

impl<'a> Model for Cursor<'a> {
    ghost use Rattle.std.specs.Prelude.{List};
    ghost use Rattle.zquery.specs.declared.notation.token.Token.{Token};

    ghost Value = { List Token };

    ghost view = { λ c. c.left.now };
}

impl<'a> Cursor<'a> {
    pub(crate) fn new(left: &'a [Token]) -> Self
        ensures { result ≡ left.now }
    {
        Cursor { left }
    }

    pub(crate) fn first(&self) -> Option<&'a Token>
        ensures some { IfSome result (λ t. self.now ≡ t.now ∷ drop 1 self.now) }
        ensures none { IfNone result (self.now ≡ []) }
    {
        self.left.first()
    }

    pub(crate) fn skip(&mut self)
        ensures { self.new ≡ drop 1 self.old }
    {
        if let [_, others @ ..] = self.left {
            self.left = others;
        }
    }

    pub(crate) fn next(&mut self) -> Option<&'a Token>
        ensures some { IfSome result (λ t. self.old ≡ t.now ∷ self.new) }
        ensures none { IfNone result ((self.old ≡ []) × (self.new ≡ [])) }
    {
        match self.left {
            [] => None,
            [first, others @ ..] => {
                self.left = others;
                Some(first)
            }
        }
    }
}
