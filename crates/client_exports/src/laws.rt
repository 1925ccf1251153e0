//! What holds of what a client's cache answers.
ghost use Rattle.client_exports.specs.Hits.{HitIsAsked, HitLasts};

/// What a hit gives is what the call by the bytes of a read of the handle would be served with; and where that wouldn't be served, it
/// gives nothing.
pub fn hit_is_asked()
    ensures { HitIsAsked }
{}

/// A hit at a moment is one at each later moment of the lease that the client has then, of the same content; and from the end of that
/// lease on there is none. So who took it by `leased_until` may answer it till then.
pub fn hit_lasts()
    ensures { HitLasts }
{}
