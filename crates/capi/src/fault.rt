// Why a call is turned down.
ghost use Rattle.std.specs.Prelude.{◌≡◌};
ghost use Rattle.capi.specs.Faults.{code_of_fault};
ghost use Rattle.capi.specs.declared.fault.Fault.TheVariants.{Plan as of_plan};

use refusal::{Code, Facts, Refusal};

// A refusal of the library, or a number that names no method or no queue.
#[derive(Clone, Copy)]
pub(crate) enum Fault {
    Plan(Refusal),
    NoMethod,
    NoQueue,
}

impl From<Refusal> for Fault {
    ghost from_gives = { λ r f. f ≡ of_plan r };

    fn from(refusal: Refusal) -> Fault {
        Fault::Plan(refusal)
    }
}

impl Fault {
    // The number and facts of a fault.
    pub(crate) fn code(self) -> Code
        ensures value { result ≡ code_of_fault self }
    {
        let number = match self {
            Fault::Plan(refusal) => return refusal.code(),
            Fault::NoMethod => 101,
            Fault::NoQueue => 102,
        };
        Code {
            number,
            facts: Facts::Bare,
        }
    }
}
