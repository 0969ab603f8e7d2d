// The kinds of chunks, and which member may stand where.
ghost use Rattle.std.specs.Prelude.{◌≡◌};
ghost use Rattle.members.specs.Kinds.{kind_of, nests, is_plain, is_prop, may_hold_of, behind};

use crate::{Kind, Place};

const LIST: u64 = 0x4c495354;

const CAT: u64 = 0x43415420;

const PROP: u64 = 0x50524f50;

impl From<u64> for Kind {
    ghost from_gives = { λ t k. k ≡ kind_of t };

    fn from(t: u64) -> Kind {
        match t {
            blorb::FORM => Kind::Form,
            LIST => Kind::List,
            CAT => Kind::Cat,
            PROP => Kind::Prop,
            _ => Kind::Plain,
        }
    }
}

impl Kind {
    // A FORM or a group.
    pub fn is_nest(self) -> bool
        ensures { result ≡ nests self }
    {
        matches!(self, Kind::Form | Kind::List | Kind::Cat)
    }

    pub fn is_plain(self) -> bool
        ensures { result ≡ is_plain self }
    {
        self == Kind::Plain
    }

    pub fn is_prop(self) -> bool
        ensures { result ≡ is_prop self }
    {
        self == Kind::Prop
    }
}

impl Place {
    pub fn may_hold(self, kind: Kind) -> bool
        ensures { result ≡ may_hold_of self kind }
    {
        match self {
            Place::Top | Place::InGroup => kind.is_nest(),
            Place::InForm => kind.is_nest() | kind.is_plain(),
            Place::ListHead => kind.is_nest() | kind.is_prop(),
            Place::InProp => kind.is_plain(),
        }
    }

    // Where the next member stands, behind one of this kind.
    pub fn behind(self, kind: Kind) -> Place
        ensures { result ≡ behind self kind }
    {
        match self {
            Place::ListHead if !kind.is_prop() => Place::InGroup,
            place => place,
        }
    }
}
