//! The words and bytes of all transactions that a number makes.

ghost use Rattle.std.specs.Prelude.{◌≡◌};
ghost use Rattle.sb_flow.specs.Accepted.{word_count};
ghost use Rattle.sb_gen.specs.Generated.{gen_network};
ghost use Rattle.sb_gen.specs.Summary.{byte_count};

use crate::generator::Generator;

/// The transactions of all hosts.
const TRANSACTIONS: u32 = 8192;

/// What all transactions come to.
#[derive(Clone, Copy, Debug, PartialEq, Eq)]
pub struct Totals {
    /// At most 131,072.
    pub words: u32,
    /// At most 1,048,576.
    pub bytes: u32,
}

/// The words and the bytes of all transactions of the bundle that a number makes. They are drawn again, so that they are counted
/// of the number alone. It takes no memory.
pub fn gen_totals(number: u32) -> Totals
    ensures words { result.words ≡ word_count (gen_network number) }
    ensures bytes { result.bytes ≡ byte_count (gen_network number) }
{
    let mut generator = Generator::new(number);
    let mut words = 0;
    let mut bytes = 0;
    for _transaction in 0..TRANSACTIONS {
        let draws = generator.draws();
        words += draws.drawn_count();
        bytes += draws.drawn_span();
    }
    Totals { words, bytes }
}
