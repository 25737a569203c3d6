// A node's own settings.
ghost use Rattle.std.specs.Prelude.{◌≡◌};
ghost use Rattle.cells.specs.Layout.{node};
ghost use Rattle.cells.specs.KindLaws.{node_laws};
ghost use Rattle.cells.specs.Records.{to_node, from_node};
ghost use Rattle.cells.specs.View.{view, with_node};

use crate::layout::{Kind, NODE, nodes};
use crate::record::Record;
use names::Slot;
use routing::direction::Directions;

// Its words.
pub const OWN: usize = 4;

#[derive(Clone, Copy)]
pub struct Node {
    // the number written into the switch
    pub number: u32,
    // 1 or 3: how many bytes a header has
    pub width: u32,
    pub directions: Directions,
}

impl Record for Node {
    const KIND: Kind = NODE;

    ghost KIND = { node };

    ghost of_words = { to_node };

    ghost to_words = { from_node };

    ghost entry = { λ s n i. s.own n i };

    ghost with = { λ s n i k. with_node s n k };

    ghost laws = { node_laws };

    fn none() -> Node {
        Node {
            number: 0,
            width: 0,
            directions: Directions {
                first: 0,
                second: 0,
            },
        }
    }

    fn from_words(w: &[u32]) -> Node {
        Node {
            number: w[0],
            width: w[1],
            directions: Directions {
                first: w[2],
                second: w[3],
            },
        }
    }

    fn write(self, w: &mut [u32]) {
        w[0] = self.number;
        w[1] = self.width;
        w[2] = self.directions.first;
        w[3] = self.directions.second;
    }
}

// How many nodes a state has.
#[tactic(auto, unfolding(crate::specs::View::view))]
pub fn count(st: &[u32]) -> usize
    ensures { result ≡ (view st.now).nodes }
{
    nodes(st)
}
