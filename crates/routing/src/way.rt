// Which bit of a number decides, where the node is another.
ghost use Rattle.std.specs.Prelude.{◌≡◌};
ghost use Rattle.routing.specs.Way.{highest, way_to};

use names::NodeNumber;
use tokens::header::{Width, compared};

#[tactic(auto, using(crate::proofs::Highest::found, crate::proofs::Highest::none))]
fn highest_differing(a: NodeNumber, b: NodeNumber) -> Option<u32>
    ensures { result ≡ highest 16 a.0 b.0 }
{
    let x = a.0 ^ b.0;
    if x == 0 {
        return None;
    }
    let zeros = u16::leading_zeros(x);
    Some(15 - zeros)
}

// Where a header's number leads at a switch of number own, both compared at the switch's width: by the highest bit in which they
// differ; none means this node.
#[tactic(auto, using(crate::proofs::Highest::at_width))]
pub fn way_to(number: NodeNumber, own: NodeNumber, w: Width) -> Option<u32>
    ensures { result ≡ way_to w number own }
{
    highest_differing(compared(number, w), compared(own, w))
}
