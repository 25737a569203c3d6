// What an enum crosses as: one number, which says the case and what the case carries.
ghost use Rattle.std.specs.Prelude.{◌≡◌};
ghost use Rattle.host.specs.Crossed.{seen_number};

use answers::packed;

// What a look at a token finds: its word, if there is one.
pub fn seen_number(s: Option<u32>) -> u64
    ensures { result ≡ seen_number s }
{
    match s {
        Some(word) => packed(1, word),
        None => packed(0, 0),
    }
}
