// An open geometry, and which events it takes next. Frames are small values: a caller keeps as many as it has room for.
ghost use Rattle.std.specs.Prelude.{◌≡◌, ℕ, ◌<◌};
ghost use Rattle.nesting.specs.declared.geometry_type.GeometryType.{GeometryType};
ghost use Rattle.nesting.specs.Rules.{limit64};
ghost use Rattle.nesting.specs.Machine.{Frame as Open, frame, outside, number, count, one_more, end_fits, pair_fits};
ghost use Rattle.nesting.specs.Taking.{Is, ample, begins};

use crate::geometry_type::{GeometryType, Kind};
use crate::rules::Rules;

// `done` of `size` things inside it are closed. A Point has one thing, its pair.
#[derive(Clone, Copy, Debug, PartialEq, Eq)]
pub struct Frame<K> {
    pub kind: K,
    pub tagged: bool,
    pub idx: u32,
    pub size: u32,
    pub done: u32,
}

impl<K: Kind> Frame<K> {
    // What a feature is to its one geometry: a collection of one member that has no begin and no end.
    pub fn outside() -> Frame<K>
        ensures { Is K.numbered result (outside 0) }
    {
        Frame {
            kind: K::of_type(GeometryType::Collection),
            tagged: false,
            idx: 0,
            size: 1,
            done: 0,
        }
    }

    // The frame that a begin opens.
    pub fn begun(kind: K, tagged: bool, size: u32, idx: u32) -> Frame<K>
        ensures { (type : GeometryType) → K.numbered kind ≡ number type → Is K.numbered result (frame type tagged idx (count type size) 0) }
    {
        let is_point = kind.geometry_type() == Some(GeometryType::Point);
        let size = if is_point { 1 } else { size };
        Frame {
            kind,
            tagged,
            idx,
            size,
            done: 0,
        }
    }

    // One more thing is closed. A frame that is full stays as it is, so that no count can wrap.
    pub fn one_more(self) -> Frame<K>
        ensures { (g : Open) → Is K.numbered self g → g.done < g.size → Is K.numbered result (one_more g) }
    {
        if self.size <= self.done {
            return self;
        }
        Frame {
            done: self.done + 1,
            ..self
        }
    }

    // Whether a pair of this index is the next thing.
    pub fn takes_pair(self, idx: u32) -> bool
        ensures { (g : Open) → Is K.numbered self g → (x y : ℕ) → x < limit64 → y < limit64 → result ≡ pair_fits g x y idx }
    {
        match self.kind.geometry_type() {
            Some(kind) => kind.holds_pairs() & (self.done < self.size) & (idx == self.done),
            None => false,
        }
    }

    // Whether a begin is the next thing, however deep it stands.
    pub fn takes_begin(self, kind: K, tagged: bool, size: u32, idx: u32, rules: Rules) -> bool
        ensures { (g : Open) → Is K.numbered self g → (type : GeometryType) → K.numbered kind ≡ number type → (level : ℕ)
            → result ≡ begins (ample rules.empty rules.deeper) level g type tagged size idx }
    {
        match (self.kind.geometry_type(), kind.geometry_type()) {
            (Some(around), Some(kind)) => {
                (self.done < self.size)
                    & (idx == self.done)
                    & around.takes(kind, tagged)
                    & kind.may_hold(size, rules)
            }
            _ => false,
        }
    }

    // Whether it is full, and this is its end.
    pub fn takes_end(self, kind: K, tagged: bool, idx: u32) -> bool
        ensures { (g : Open) → Is K.numbered self g → (type : GeometryType) → K.numbered kind ≡ number type → result ≡ end_fits g type tagged idx }
    {
        (kind.geometry_type() == self.kind.geometry_type())
            & (tagged == self.tagged)
            & (idx == self.idx)
            & (self.done == self.size)
    }
}
