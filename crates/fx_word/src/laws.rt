//! What seats know, as laws of their views. The functions do nothing: their contracts are the laws.
ghost use Rattle.std.specs.Prelude.{ℕ, Some};
ghost use Rattle.fx_term.specs.Lists.{Among};
ghost use Rattle.fx_term.specs.declared.outcome.Outcome.{Outcome};
ghost use Rattle.fx_word.specs.declared.entry.Entry.{Entry};
ghost use Rattle.fx_word.specs.declared.seat_view.SeatView.{SeatView};
ghost use Rattle.fx_word.specs.Entry.{asking, looking, finished, peeked};
ghost use Rattle.fx_word.specs.SeatView.{In, with_own, joined, IsAsked, KnowsRequestStamp, Knows, KnowsEndStamp, Keeps};
ghost use Rattle.fx_word.specs.Change.{Change};

/// What a seat knows of requests and of ends, and of their stamps, it knows after each call. So a `look`
/// that found the request finds it again, with no lower stamp, and a `peek` that found an outcome always
/// finds that one, with that stamp.
pub fn what_is_known_stays()
    ensures { (v w : SeatView) → Change v w → Keeps v w }
{}

/// A seat knows of a request of its own fiber that it made, and of one that it saw, with its stamp.
pub fn own_request_is_known()
    ensures made { (v : SeatView) (t : ℕ) → IsAsked (with_own v (asking v.own.id t v.own))
        × KnowsRequestStamp (with_own v (asking v.own.id t v.own)) t }
    ensures seen { (v : SeatView) (t : ℕ) → IsAsked (with_own v (looking (Some t) v.own))
        × KnowsRequestStamp (with_own v (looking (Some t) v.own)) t }
{}

/// A seat knows the end of its own fiber, and one that it peeked, with its stamp.
pub fn end_is_known()
    ensures own { (v : SeatView) (o : Outcome) (t : ℕ)
        → Knows (with_own v (finished o t v.own)) v.own.id o
        × KnowsEndStamp (with_own v (finished o t v.own)) v.own.id t }
    ensures peeked { (v : SeatView) (i : ℕ) (o : Outcome) (t : ℕ)
        → Knows (with_own v (peeked i o t v.own)) i o
        × KnowsEndStamp (with_own v (peeked i o t v.own)) i t }
{}

/// A seat knows each end that one knew which it took in, and each request of its own fiber that
/// this one made, with their stamps.
pub fn gathered_is_known()
    ensures ends { (v w : SeatView) (i : ℕ) (o : Outcome) → Knows w i o → Knows (joined v w) i o }
    ensures requests { (v w : SeatView) (e : Entry)
        → In e w → Among v.own.id e.asked → IsAsked (joined v w) }
    ensures end_stamps { (v w : SeatView) (i t : ℕ)
        → KnowsEndStamp w i t → KnowsEndStamp (joined v w) i t }
    ensures request_stamps { (v w : SeatView) (e : Entry) (t : ℕ)
        → In e w → Among (v.own.id, t) e.asked_with → KnowsRequestStamp (joined v w) t }
{}
