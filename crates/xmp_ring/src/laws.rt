// Laws of what a receiver answers.
ghost use Rattle.std.specs.Prelude.{◌≡◌, List};
ghost use Rattle.xmp_message.specs.declared.Message.{Message};
ghost use Rattle.xmp_ring.specs.declared.received.Received.{Received};
ghost use Rattle.xmp_ring.specs.declared.received.Received.TheVariants.{Stop};
ghost use Rattle.xmp_ring.specs.Pieces.{End, IsReceived, IsStopped};

/// Where the stop word was answered, it is what the receiver took last.
pub fn stop_is_last()
    ensures { (stream : List Message) (old new : End) → IsReceived stream old Stop new → IsStopped new.entries }
{}

/// After the stop word every call answers the stop word and changes nothing.
pub fn after_stop()
    ensures { (stream : List Message) (old new : End) (answer : Received)
        → IsStopped old.entries → IsReceived stream old answer new → (answer ≡ Stop) × (new ≡ old) }
{}
