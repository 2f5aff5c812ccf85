// One thing for each of the six pools.
ghost use Rattle.std.specs.Prelude.{◌≡◌, leb};
ghost use Rattle.kinds.specs.Lanes.{Lane, lane, every_lane};

use crate::usable;

#[derive(Clone, Copy, Debug, PartialEq, Eq)]
pub struct Lanes<T> {
    pub xy: T,
    pub ends: T,
    pub z: T,
    pub m: T,
    pub t: T,
    pub tm: T,
}

// How many words of each pool are lent.
pub type Lent = Lanes<usize>;

// How many words of each pool are usable.
pub const USABLE: Lent = Lanes {
    xy: usable::XY_WORDS,
    ends: usable::POOL_WORDS,
    z: usable::POOL_WORDS,
    m: usable::POOL_WORDS,
    t: usable::POOL_WORDS,
    tm: usable::POOL_WORDS,
};

impl<T: Copy> Lanes<T> {
    // Each lane's own, from what stands in that lane.
    pub fn map<U, F: Fn(T) -> U>(self, f: F) -> Lanes<U>
        requires { (n : Lane) → F.pre f (lane self n) }
        ensures { (n : Lane) → F.post f (lane self n) (lane result n) }
    {
        Lanes {
            xy: f(self.xy),
            ends: f(self.ends),
            z: f(self.z),
            m: f(self.m),
            t: f(self.t),
            tm: f(self.tm),
        }
    }

    // Each lane's own, from what stands in that lane here and there.
    pub fn zip_with<U: Copy, V, F: Fn(T, U) -> V>(self, other: Lanes<U>, f: F) -> Lanes<V>
        requires { (n : Lane) → F.pre f (lane self n) (lane other n) }
        ensures { (n : Lane) → F.post f (lane self n) (lane other n) (lane result n) }
    {
        Lanes {
            xy: f(self.xy, other.xy),
            ends: f(self.ends, other.ends),
            z: f(self.z, other.z),
            m: f(self.m, other.m),
            t: f(self.t, other.t),
            tm: f(self.tm, other.tm),
        }
    }
}

impl Lanes<bool> {
    pub fn all(self) -> bool
        ensures { result ≡ every_lane (lane self) }
    {
        self.xy & self.ends & self.z & self.m & self.t & self.tm
    }
}

impl Lanes<usize> {
    // Whether each lane is at most what stands in that lane there.
    pub fn within(self, most: Lanes<usize>) -> bool
        ensures { result ≡ every_lane (λ n. leb (lane self n) (lane most n)) }
    {
        self.zip_with(most, |n, most| n <= most).all()
    }
}
