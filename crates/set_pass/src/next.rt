// What comes next of the tree and of the tokens.
ghost use Rattle.std.specs.Prelude.{◌≡◌, ◌+◌, ◌<◌};

// The node and the token that come next.
#[derive(Clone, Copy)]
pub struct Next {
    pub node: u16,
    pub token: u16,
}

impl Next {
    // At the root: node 0 and token 0.
    pub const FIRST: Next = Next { node: 0, token: 0 };

    // One node on.
    pub fn past_node(self) -> Next
        requires { self.node + 1 < 65536 }
        ensures { (result.node ≡ self.node + 1) × (result.token ≡ self.token) }
    {
        Next {
            node: self.node + 1,
            ..self
        }
    }

    // One token on.
    pub fn past_token(self) -> Next
        requires { self.token + 1 < 65536 }
        ensures { (result.node ≡ self.node) × (result.token ≡ self.token + 1) }
    {
        Next {
            token: self.token + 1,
            ..self
        }
    }
}
