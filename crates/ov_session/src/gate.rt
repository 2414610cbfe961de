//! What is told of a request before it is asked.
ghost use Rattle.std.specs.Prelude.{ℕ};

/// Called before each request of a session is asked. A test holds a session here until another one
/// went on.
pub trait Gate {
    /// The gate was told of a request, by the number of its session and its own, while its asker was
    /// as it is here. Only a call of `pause` gives this, so where it is known of an asker before an
    /// ask, the gate was told before that ask.
    ghost was_told: { Self → ℕ → (A : Type 0) → ℕ → A → Type 0 };

    /// Request `request` of session `session` was read; both are counted from 0, and the last number
    /// is that of all further requests too. It is asked by `asker` next. That can be of any type, so
    /// a gate sees nothing of it; it is passed so that the contract can say when the gate was told.
    fn pause<A>(&self, session: u32, request: u32, asker: &A)
        ensures { was_told self.now session A request asker.now };
}

/// A gate at which nobody waits.
#[derive(Clone, Copy)]
pub struct OpenGate;

impl Gate for OpenGate {
    ghost was_told = { λ _ _ _ _ _. Unit {0} };

    fn pause<A>(&self, session: u32, request: u32, asker: &A) {
        let _ = (session, request);
        let _ = asker;
    }
}
