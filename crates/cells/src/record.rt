// The kinds of record: each says how its words are read and written, and what it is in the view. So a record
// of the state is read, written and changed in one way for all kinds. A kind that a node has one of stands at place 0.
ghost use Rattle.std.specs.Prelude.{◌≡◌, ℕ, List, [], ◌<◌, length};
ghost use Rattle.std.specs.Fn.{FnOnceReturnsAtMut};
ghost use Rattle.cells.specs.Record.{RecordLaws};
ghost use Rattle.cells.specs.View.{Net, view};
ghost use Rattle.cells.specs.declared.layout.Kind.{Kind};

use crate::layout::{Kind, begins, words};
use names::Slot;

// A field is the word that stands there, whatever it is, and so no bool, enum or Option: the view leaves no word free (`whole_state`), and
// what a word may be is a clause of Sound.
pub trait Record: Copy {
    // How many a node has, and where they lie.
    const KIND: Kind;

    ghost KIND: { Kind };

    // What words say, and the words of a record.
    ghost of_words: { List ℕ → Self };

    ghost to_words: { Self → List ℕ };

    // The entry of the view at a place of a node, and the view with that entry changed.
    ghost entry: { Net → ℕ → ℕ → Self };

    ghost with: { Net → ℕ → ℕ → Self → Net };

    // Words read are the entry, and words written change it alone.
    ghost laws: { RecordLaws KIND of_words to_words entry with };

    // What stands where there is no such record. It is no `Default`: its parts of crates below have none.
    fn none() -> Self
        ensures { result ≡ of_words [] };

    // The record that its words say.
    fn from_words(w: &[u32]) -> Self
        requires { length w.now ≡ KIND.size }
        ensures { result ≡ of_words w.now };

    // Writes it word for word; read back, it is the same.
    fn write(self, w: &mut [u32])
        requires { length w.old ≡ KIND.size }
        ensures words { w.new ≡ to_words self }
        ensures back { of_words (to_words self) ≡ self };

    // Record i of a slot. Where words are missing there is no record.
    final fn at(st: &[u32], slot: Slot, i: usize) -> Self
        ensures { result ≡ entry (view st.now) slot.0 i }
    {
        let w = words(st, slot, i, Self::KIND);
        if w.len() == Self::KIND.size {
            return Self::from_words(w);
        }
        Self::none()
    }

    // Writes record i of a slot, which is there.
    final fn put(st: &mut [u32], slot: Slot, i: usize, k: Self)
        requires { (slot.0 < (view st.old).nodes) × (i < KIND.many) }
        ensures { view st.new ≡ with (view st.old) slot.0 i k }
    {
        let a = begins(slot, i, Self::KIND);
        let e = a + Self::KIND.size;
        k.write(&mut st[a..e]);
    }

    // Changes record i of a slot, which is there.
    final fn change<F: FnOnce(&mut Self)>(st: &mut [u32], slot: Slot, i: usize, edit: F)
        requires { (slot.0 < (view st.old).nodes) × (i < KIND.many) × F.IsAlwaysCallable edit }
        ensures { (k : Self) × FnOnceReturnsAtMut F.FnOnce edit (entry (view st.old) slot.0 i) tt k × (view st.new ≡ with (view st.old) slot.0 i k) }
    {
        let mut k = Self::at(st, slot, i);
        edit(&mut k);
        Self::put(st, slot, i, k);
    }
}
