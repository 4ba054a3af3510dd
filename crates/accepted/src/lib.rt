// The values of a sheet that questions 3, 4 and 5 have passed, with the modulus of their prime: what all that is worked out for them goes by.
#![tactic(auto)]

ghost use Rattle.std.specs.Prelude.{◌≡◌};
ghost use Rattle.sheet.specs.Ready.{Ready};

use barrett::Modulus;
use sheet::Values;

// The modulus is prepared once for all that follows.
#[derive(Clone, Copy)]
pub struct Accepted {
    pub values: Values,
    pub modulus: Modulus,
    pub ghost ready: { Ready values },
    pub ghost over: { modulus.p ≡ values.p },
}

impl Accepted {
    pub fn new(values: Values) -> Self
        requires { Ready values }
        ensures { result.values ≡ values }
    {
        Accepted {
            values,
            modulus: Modulus::new(values.p),
        }
    }
}
