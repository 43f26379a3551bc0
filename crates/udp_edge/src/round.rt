//! Whose turn it is among the sockets that are ready.
ghost use Rattle.std.specs.Prelude.{◌≡◌, ◌+◌, ◌%◌, ◌<◌, ◌↔◌, IfSome, IsNone, IsTrue};
ghost use Rattle.udp_edge.specs.{IsNext, SetsBit};

// The most sockets in a round.
pub(crate) const PLACES: usize = 128;

// The sockets that are ready as far as is known, each by its place, and the place whose turn it is.
#[derive(Drop)]
pub(crate) struct Round {
    // The bit of a place is 1 where its socket is ready.
    ready: u128,
    turn: u32,
    ghost within: { turn < 128 },
}

impl Round {
    // None is ready, and the first place has its turn.
    pub(crate) fn new() -> Round
        ensures idle { result.ready ≡ 0 }
        ensures turn { result.turn ≡ 0 }
    {
        Round { ready: 0, turn: 0 }
    }

    pub(crate) fn is_idle(&self) -> bool
        ensures { IsTrue result ↔ (self.now.ready ≡ 0) }
    {
        self.ready == 0
    }

    // The ready place that comes first from the turn on, round all places.
    #[tactic(auto, using(crate::proofs::Turns::next_from_turn, crate::proofs::Turns::next_round_the_end))]
    pub(crate) fn next(&self) -> Option<usize>
        ensures next { IfSome result (IsNext self.now.ready self.now.turn) }
        ensures none { IsNone result ↔ (self.now.ready ≡ 0) }
    {
        let from_turn = self.ready >> self.turn;
        if from_turn != 0 {
            return Some((self.turn + from_turn.trailing_zeros()) as usize);
        }
        if self.ready != 0 {
            return Some(self.ready.trailing_zeros() as usize);
        }
        None
    }

    // The socket at this place is ready.
    pub(crate) fn mark(&mut self, place: usize)
        requires { place < 128 }
        ensures marked { SetsBit self.old.ready self.new.ready place 1 }
        ensures turn { self.new.turn ≡ self.old.turn }
    {
        self.ready |= 1 << place;
    }

    // The socket at this place has nothing more.
    pub(crate) fn clear(&mut self, place: usize)
        requires { place < 128 }
        ensures cleared { SetsBit self.old.ready self.new.ready place 0 }
        ensures turn { self.new.turn ≡ self.old.turn }
    {
        self.ready &= !(1 << place);
    }

    // The socket at this place had its turn, and the next place has it now.
    pub(crate) fn pass(&mut self, place: usize)
        requires { place < 128 }
        ensures turn { self.new.turn ≡ (place + 1) % 128 }
        ensures ready { self.new.ready ≡ self.old.ready }
    {
        self.turn = (place as u32 + 1) % 128;
    }
}
