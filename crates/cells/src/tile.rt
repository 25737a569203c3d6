// A link from the switch to the tile.
ghost use Rattle.cells.specs.Layout.{tile};
ghost use Rattle.cells.specs.Records.{to_tile, from_tile};
ghost use Rattle.cells.specs.View.{with_tile};
ghost use Rattle.cells.specs.KindLaws.{tile_laws};

use crate::layout::{Kind, TILE};
use crate::record::Record;
use circuits::Circuit;

#[derive(Clone, Copy)]
pub struct Tile {
    // the port that uses it
    pub user: Circuit,
}

impl Record for Tile {
    const KIND: Kind = TILE;

    ghost KIND = { tile };

    ghost of_words = { to_tile };

    ghost to_words = { from_tile };

    ghost entry = { λ s n t. s.tiles n t };

    ghost with = { with_tile };

    ghost laws = { tile_laws };

    fn none() -> Tile {
        Tile {
            user: circuits::none(),
        }
    }

    fn from_words(w: &[u32]) -> Tile {
        Tile {
            user: circuits::read(w),
        }
    }

    fn write(self, w: &mut [u32]) {
        circuits::write(w, self.user);
    }
}
