// The wires of one direction of a link, bit i of a byte for wire i.
ghost use Rattle.std.specs.Prelude.{◌≡◌};
ghost use Rattle.probe.specs.Wires.{changed, after};

// A transition on a wire; there are no others.
#[tactic(auto, using(crate::proofs::Levels::is_changed, crate::proofs::Levels::none_there))]
pub fn changed(wires: u8, wire: u8) -> u8
    ensures { result ≡ changed wires wire }
{
    if wire > 4 {
        return wires;
    }
    wires ^ (1 << wire)
}

// The wires after transitions.
#[tactic(auto, using(crate::proofs::Levels::after_folds))]
pub fn after(wires: u8, symbols: &[u8]) -> u8
    ensures { result ≡ after wires symbols.now }
{
    symbols
        .iter()
        .fold(wires, |wires, wire| changed(wires, *wire))
}
