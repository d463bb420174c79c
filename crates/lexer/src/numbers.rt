// The numbers of a line.
ghost use Rattle.std.specs.Prelude.{◌≡◌, ◌≤◌, ◌<◌, ◌+◌, [], ◌∷◌, ◌++◌, cond, eqb, set, replicate};

// Nine at the most.
#[derive(Clone, Copy, Debug, PartialEq, Eq)]
pub struct Numbers {
    pub count: u16,
    pub values: [u16; 9],
    pub ghost few: { count ≤ 9 },
}

// The number v if place i is the one sought, and else the number there. By itself, so that the compiler chooses and does not jump.
fn at_place(sought: u16, i: u16, v: u16, there: u16) -> u16
    ensures { result ≡ cond (eqb sought i) v there }
{
    if sought == i {
        return v;
    }
    there
}

impl Numbers {
    ghost use Rattle.lexer.specs.Told.{list_of};

    #[tactic(auto, unfolding(crate::specs::Told::list_of))]
    pub fn none() -> Numbers
        ensures list { list_of result ≡ [] }
        ensures count { result.count ≡ 0 }
        ensures values { result.values ≡ replicate 9 0 }
    {
        Numbers {
            count: 0,
            values: [0; 9],
        }
    }

    // One number more.
    #[tactic(auto, unfolding(crate::specs::Told::list_of))]
    pub fn with(self, v: u16) -> Numbers
        requires { self.count < 9 }
        ensures list { list_of result ≡ list_of self ++ (v ∷ []) }
        ensures count { result.count ≡ self.count + 1 }
        ensures values { result.values ≡ set self.values self.count v }
    {
        let mut values = self.values;
        // Each place is written, so that the array stays in registers: were the number stored by its index, the copies after it would
        // wait for that store.
        for i in 0..9 {
            values[i as usize] = at_place(self.count, i, v, values[i as usize]);
        }
        Numbers {
            count: self.count + 1,
            values,
        }
    }

    // Those that are there.
    #[tactic(auto, unfolding(crate::specs::Told::list_of))]
    pub fn as_slice(&self) -> &[u16]
        ensures { result.now ≡ list_of self.now }
    {
        &self.values[..self.count as usize]
    }
}
