//! Response types that are asked for together.

ghost use Rattle.std.specs.Prelude.{◌≡◌};

use std::marker::Model;

/// Response types that are asked for together, in the order that they are given (OAuth 2.0 Multiple
/// Response Type Encoding Practices section 3). Contracts see their list.
#[derive(Drop)]
pub struct ResponseTypes<RT> {
    types: Vec<RT>,
}

impl<RT> Model for ResponseTypes<RT> {
    ghost use Rattle.std.specs.Prelude.{List};

    ghost Value = { List RT };

    ghost view = { λ r. r.types.items };
}

impl<RT> ResponseTypes<RT> {
    /// These types.
    pub fn new(types: Vec<RT>) -> Self
        ensures kept { result ≡ types.items }
    {
        ResponseTypes { types }
    }

    /// The types.
    pub fn as_slice(&self) -> &[RT]
        ensures list { result.now ≡ self.now }
    {
        self.types.as_slice()
    }
}

impl<RT: PartialEq> PartialEq for ResponseTypes<RT> {
    ghost use Rattle.std.specs.Cmp.Lexicographic.{pointwise, lists_per};

    ghost eq = { λ a b. pointwise RT.eq a b };

    ghost laws = { lists_per RT.laws };

    fn eq(&self, other: &ResponseTypes<RT>) -> bool {
        self.types == other.types
    }
}

impl<RT: Eq> Eq for ResponseTypes<RT> {
    ghost use Rattle.std.specs.Cmp.Lexicographic.{lists_equiv};

    ghost laws = { lists_equiv RT.Eq.laws };
}
