ghost use Rattle.std.specs.Prelude.{◌≡◌, ℕ};
ghost use Rattle.walk_laws.specs.declared.Exchange.{Exchange};

use walk_laws::Exchange;

/// What a list appends for each exchange: decided by the roll's kind of entry.
pub trait Entry: Copy {
    ghost entry: { Exchange → ℕ → Self };

    /// The entry for an exchange and the set that it led to.
    fn entry(exchange: Exchange, set: u64) -> Self
        ensures { result ≡ entry exchange set };
}

impl Entry for u64 {
    ghost entry = { λ _ s. s };

    fn entry(exchange: Exchange, set: u64) -> u64 {
        set
    }
}

impl Entry for Exchange {
    ghost entry = { λ x _. x };

    fn entry(exchange: Exchange, set: u64) -> Exchange {
        exchange
    }
}
