// A cost kind by its meaning, and the join of a whole list of costs.
ghost use Rattle.std.specs.Prelude.{◌≡◌, ℕ, Option, None, is_none};
ghost use Rattle.std.specs.Option.{ok_or};
ghost use Rattle.refusal.specs.Code.{bare};
ghost use Rattle.refusal.specs.First.{refused_if, told};
ghost use Rattle.refusal.specs.declared.Refusal.TheVariants.{NoCost};
ghost use Rattle.cost.specs.Kind.{Kind};
ghost use Rattle.cost.specs.Laws.{Laws, Strict};
ghost use Rattle.cost.specs.Forms.{Forms};
ghost use Rattle.cost.specs.Joins.{joins};

use refusal::Refusal;

pub trait Cost: Copy {
    // Rank, zero, FAR and join.
    ghost kind: { Kind Self };

    // The cost that a number forms, if any.
    ghost formed: { ℕ → Option Self };

    // The cost of a walk with no link.
    fn zero() -> Self
        ensures value { result ≡ kind.zero };

    // The cost of what cannot be reached.
    fn far() -> Self
        ensures value { result ≡ kind.far };

    // The cost of a walk at `self` that goes on at `other`.
    fn join(self, other: Self) -> Self
        ensures value { result ≡ kind.joined self other };

    // The number by which costs are compared.
    fn rank(self) -> u64
        ensures value { result ≡ kind.rank self };

    // The cost that has this number; a number that is no cost's is refused by 21.
    fn form(number: u64) -> Result<Self, Refusal>
        ensures value { result ≡ ok_or (formed number) NoCost }
        ensures refused { told result ≡ refused_if (is_none (formed number)) (bare 21) None };

    ghost lawful: { Laws kind };

    ghost strict: { Strict kind };

    ghost numbered: { Forms kind formed };
}

// The join of costs from first to last, beginning with zero.
pub fn total<K: Cost>(costs: &[K]) -> K
    ensures value { result ≡ joins K.kind costs.now }
{
    costs
        .iter()
        .fold(K::zero(), |whole, cost| whole.join(*cost))
}
