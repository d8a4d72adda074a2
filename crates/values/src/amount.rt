//! Amounts of money.
ghost use Rattle.std.specs.Prelude.{◌≡◌, ℕ, true, Some};
ghost use Rattle.std.specs.Option.{option_map};
ghost use Rattle.values.specs.Amounts.{amount, amount_of, read_amount, amount_bytes};

use octets::readable::Readable;

/// The least amount, in kopecks.
const LEAST: u64 = 1;

/// The largest amount, in kopecks: fifteen nines.
const GREATEST: u64 = 999_999_999_999_999;

/// An amount of 1 to 999,999,999,999,999 kopecks.
#[derive(Clone, Copy, PartialEq, Eq)]
pub struct Amount {
    pub kopecks: u64,
    ghost fit: { amount kopecks ≡ true },
}

impl Readable for Amount {
    ghost Meaning = { ℕ };

    ghost meaning = { λ sum. sum.kopecks };

    ghost reading = { read_amount };

    ghost writing = { amount_bytes };

    /// The amount that eight bytes write, the high byte first.
    fn read(bytes: &[u8]) -> Option<Amount> {
        let array = <[u8; 8]>::try_from(bytes).ok()?;
        Amount::new(u64::from_be_bytes(array))
    }
}

impl Amount {
    /// The amount of so many kopecks.
    pub fn new(kopecks: u64) -> Option<Amount>
        ensures { option_map (λ sum. sum.kopecks) result ≡ amount_of kopecks }
    {
        if (LEAST..=GREATEST).contains(&kopecks) {
            Some(Amount { kopecks })
        } else {
            None
        }
    }

    /// The eight bytes that write it, the high byte first. Read, they give the amount again.
    pub fn bytes(&self) -> [u8; 8]
        ensures value { result ≡ amount_bytes self.now.kopecks }
        ensures back { read_amount result ≡ Some self.now.kopecks }
    {
        let Amount { kopecks } = *self;
        kopecks.to_be_bytes()
    }
}
