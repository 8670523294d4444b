//! One arc of a network, and the two ways in which a search goes over it.
ghost use Rattle.std.specs.Prelude.{◌≡◌, ◌≤◌};
ghost use Rattle.flow_net.specs.inside.Direction.{head_of, room_of, sent_over, tail_of};

/// Leads from a node to a node, and carries at most `capacity`.
#[derive(Clone, Copy, Debug, PartialEq, Eq)]
pub struct Arc {
    pub from: u16,
    pub to: u16,
    pub capacity: u32,
}

/// Along an arc a search adds flow, against it takes flow back.
#[derive(Clone, Copy)]
pub enum Direction {
    Along,
    Against,
}

impl Direction {
    /// The node at which a step over the arc begins.
    #[inline]
    pub fn tail(self, arc: Arc) -> u16
        ensures { result ≡ tail_of self arc }
    {
        match self {
            Direction::Along => arc.from,
            Direction::Against => arc.to,
        }
    }

    /// The node at which a step over the arc ends.
    #[inline]
    pub fn head(self, arc: Arc) -> u16
        ensures { result ≡ head_of self arc }
    {
        match self {
            Direction::Along => arc.to,
            Direction::Against => arc.from,
        }
    }

    /// How much more can be sent over the arc while it carries so much.
    #[inline]
    pub fn room(self, arc: Arc, carried: u32) -> u32
        requires { carried ≤ arc.capacity }
        ensures { result ≡ room_of self arc carried }
    {
        match self {
            Direction::Along => arc.capacity - carried,
            Direction::Against => carried,
        }
    }

    /// What the arc carries once `amount` more is sent over it.
    #[inline]
    pub fn sent(self, arc: Arc, carried: u32, amount: u32) -> u32
        requires within { carried ≤ arc.capacity }
        requires room { amount ≤ room_of self arc carried }
        ensures { result ≡ sent_over self carried amount }
    {
        match self {
            Direction::Along => carried + amount,
            Direction::Against => carried - amount,
        }
    }
}
