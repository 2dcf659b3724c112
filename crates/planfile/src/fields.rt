// A record's fields, between its bytes and its link.
ghost use Rattle.std.specs.Prelude.{◌≡◌};
ghost use Rattle.cost.specs.declared.link.Link.{Link};
ghost use Rattle.planfile.specs.Records.{field_bytes, fields_of, first_fields, link_of};

use cost::{Cost, Link};

// The numbers of a record's three fields, as the file has them.
#[derive(Clone, Copy)]
pub struct Fields {
    pub from: u16,
    pub to: u16,
    pub number: u64,
}

// The fields that a record's bytes stand for.
impl From<[u8; 12]> for Fields {
    ghost from_gives = { λ bytes x. x ≡ first_fields bytes };

    fn from(bytes: [u8; 12]) -> Fields {
        let [f1, f0, t1, t0, n7, n6, n5, n4, n3, n2, n1, n0] = bytes;
        Fields {
            from: u16::from_be_bytes([f1, f0]),
            to: u16::from_be_bytes([t1, t0]),
            number: u64::from_be_bytes([n7, n6, n5, n4, n3, n2, n1, n0]),
        }
    }
}

// The bytes of a record with these fields.
impl From<Fields> for [u8; 12] {
    ghost from_gives = { λ x bytes. bytes ≡ field_bytes x };

    fn from(fields: Fields) -> [u8; 12] {
        let [f1, f0] = fields.from.to_be_bytes();
        let [t1, t0] = fields.to.to_be_bytes();
        let [c7, c6, c5, c4, c3, c2, c1, c0] = fields.number.to_be_bytes();
        [f1, f0, t1, t0, c7, c6, c5, c4, c3, c2, c1, c0]
    }
}

// The fields of a link.
impl<K: Cost> From<Link<K>> for Fields {
    ghost from_gives = { λ l x. x ≡ fields_of K.kind l };

    fn from(link: Link<K>) -> Fields {
        let Link { from, to, cost } = link;
        Fields {
            from,
            to,
            number: cost.rank(),
        }
    }
}

// The link that fields stand for; a number that forms no cost stands for FAR.
impl<K: Cost> From<Fields> for Link<K> {
    ghost from_gives = { λ x l. l ≡ link_of K.kind K.formed x };

    fn from(fields: Fields) -> Link<K> {
        let Fields { from, to, number } = fields;
        Link {
            from,
            to,
            cost: K::form(number).unwrap_or(K::far()),
        }
    }
}

// The fields of a link stand for a link that has them: each cost is formed from its number, also FAR.
#[tactic(auto, using(crate::proofs::BothWays::link_again))]
pub fn links_have_fields<K: Cost>()
    ensures again { (l : Link K) → fields_of K.kind (link_of K.kind K.formed (fields_of K.kind l)) ≡ fields_of K.kind l }
{}
