// Looks at one record. Its words go to a buffer of the caller's, in the order of cells/specs/Records.antt:
// true where the buffer has exactly as many; a buffer of another length is left as it is.
ghost use Rattle.std.specs.Prelude.{◌≡◌};
ghost use Rattle.cells.specs.Records.{from_node, from_link, from_port, from_tile, from_end, from_unit, from_line};
ghost use Rattle.cells.specs.View.{view, whole_link, whole_port, whole_end, whole_unit, whole_line};
ghost use Rattle.host.specs.Crossed.{shown, showing};

use cells::end::End;
use cells::line::Line;
use cells::link::Link;
use cells::node::Node;
use cells::port::Port;
use cells::record::Record;
use cells::tile::Tile;
use cells::unit::Unit;
use names::Slot;

// Shows record i of a slot, of any kind.
fn show<R: Record>(st: &[u32], slot: usize, i: usize, out: &mut [u32]) -> bool
    ensures { shown result out.new ≡ showing (R.to_words (R.entry (view st.now) slot i)) out.old }
{
    if out.len() != R::KIND.size {
        return false;
    }
    R::at(st, Slot(slot), i).write(out);
    true
}

#[unsafe(no_mangle)]
pub extern "C" fn tarvelgyo_node(st: &[u32], slot: usize, out: &mut [u32]) -> bool
    ensures { shown result out.new ≡ showing (from_node ((view st.now).own slot 0)) out.old }
{
    show::<Node>(st, slot, 0, out)
}

#[unsafe(no_mangle)]
pub extern "C" fn tarvelgyo_link(st: &[u32], slot: usize, l: usize, out: &mut [u32]) -> bool
    ensures { shown result out.new ≡ showing (from_link (whole_link (view st.now) slot l)) out.old }
{
    show::<Link>(st, slot, l, out)
}

#[unsafe(no_mangle)]
pub extern "C" fn tarvelgyo_port(st: &[u32], slot: usize, p: usize, out: &mut [u32]) -> bool
    ensures { shown result out.new ≡ showing (from_port (whole_port (view st.now) slot p)) out.old }
{
    show::<Port>(st, slot, p, out)
}

#[unsafe(no_mangle)]
pub extern "C" fn tarvelgyo_tile_link(st: &[u32], slot: usize, t: usize, out: &mut [u32]) -> bool
    ensures { shown result out.new ≡ showing (from_tile ((view st.now).tiles slot t)) out.old }
{
    show::<Tile>(st, slot, t, out)
}

#[unsafe(no_mangle)]
pub extern "C" fn tarvelgyo_channel_end(st: &[u32], slot: usize, c: usize, out: &mut [u32]) -> bool
    ensures { shown result out.new ≡ showing (from_end (whole_end (view st.now) slot c)) out.old }
{
    show::<End>(st, slot, c, out)
}

#[unsafe(no_mangle)]
pub extern "C" fn tarvelgyo_control_unit(st: &[u32], slot: usize, out: &mut [u32]) -> bool
    ensures { shown result out.new ≡ showing (from_unit (whole_unit (view st.now) slot)) out.old }
{
    show::<Unit>(st, slot, 0, out)
}

// The line that starts at a link, and what that link has issued.
#[unsafe(no_mangle)]
pub extern "C" fn tarvelgyo_line(st: &[u32], slot: usize, l: usize, out: &mut [u32]) -> bool
    ensures { shown result out.new ≡ showing (from_line (whole_line (view st.now) slot l)) out.old }
{
    show::<Line>(st, slot, l, out)
}
