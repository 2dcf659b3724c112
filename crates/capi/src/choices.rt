// The methods and queues that a caller names by numbers.
ghost use Rattle.std.specs.Prelude.{◌≡◌, IfOk, None, Some, nat_le};
ghost use Rattle.refusal.specs.Code.{bare};
ghost use Rattle.refusal.specs.First.{refused_if};
ghost use Rattle.std.specs.Result.{result_ok};
ghost use Rattle.capi.specs.Choices.{choice_refusal, method_named, store_named};
ghost use Rattle.capi.specs.Faults.{fault_of};

use super::fault::Fault;
use routes::Method;

// What holds the stations that wait.
#[derive(Clone, Copy)]
pub(crate) enum Store {
    Heap,
    Shelf,
}

// How rows are to be worked.
#[derive(Clone, Copy)]
pub(crate) struct Choice {
    pub(crate) method: Method,
    pub(crate) store: Store,
}

// The method and the queue of two numbers.
pub(crate) fn choose(method: u8, queue: u8) -> Result<Choice, Fault>
    ensures refused { fault_of result ≡ choice_refusal method queue }
    ensures method { IfOk result (λ x. method_named method ≡ Some x.method) }
{
    let method = method_of(method)?;
    let store = store_of(queue)?;
    Ok(Choice { method, store })
}

// The method of a number.
fn method_of(number: u8) -> Result<Method, Fault>
    ensures named { result_ok result ≡ method_named number }
    ensures refused { fault_of result ≡ refused_if (nat_le 3 number) (bare 101) None }
{
    match number {
        0 => Ok(Method::Plain),
        1 => Ok(Method::Reuse),
        2 => Ok(Method::Prune),
        _ => Err(Fault::NoMethod),
    }
}

// The queue of a number.
fn store_of(number: u8) -> Result<Store, Fault>
    ensures named { result_ok result ≡ store_named number }
    ensures refused { fault_of result ≡ refused_if (nat_le 2 number) (bare 102) None }
{
    match number {
        0 => Ok(Store::Heap),
        1 => Ok(Store::Shelf),
        _ => Err(Fault::NoQueue),
    }
}
