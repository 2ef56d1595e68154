//! What follows from how requests are spelled. This function does nothing: its contract is the law.
ghost use Rattle.std.specs.Prelude.{◌≡◌, ℕ, Bool};
ghost use Rattle.record_text.specs.declared.request.Request.{Request};
ghost use Rattle.client_requests.specs.Texts.{request_text, IsAsked};

/// No two requests for one tree have one text, nor has one request of two clients or numbers: so a tag that a client makes for one
/// request is made for nothing else.
pub fn texts_tell_what_is_asked()
    ensures asked { (wide : Bool) (client number other_client other_number : ℕ) (one other : Request)
        → IsAsked wide client number one → IsAsked wide other_client other_number other
        → request_text wide client number one ≡ request_text wide other_client other_number other
        → (client ≡ other_client) × (number ≡ other_number) × (one ≡ other) }
{}
