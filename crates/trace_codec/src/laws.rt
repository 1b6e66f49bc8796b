//! Laws of the codec, each the contract of a function without effect.
ghost use Rattle.std.specs.Prelude.{◌≡◌, ◌≢◌, ℕ, List, [], ◌∷◌, ◌++◌, Result, flat_map, take};
ghost use Rattle.nano_spec.specs.declared.commands.Command.{Command};
ghost use Rattle.nano_spec.specs.Cutting.{BadAt, Cutting, Decoding};
ghost use Rattle.trace_codec.specs.declared.decoder.Fed.TheVariants as fed;
ghost use Rattle.trace_codec.specs.declared.fault.TraceFault.{TraceFault};
ghost use Rattle.trace_codec.specs.declared.fault.TraceFault.TheVariants as fault;
ghost use Rattle.trace_codec.specs.declared.fault.TraceRefusal.{TraceRefusal};
ghost use Rattle.trace_codec.specs.Decoder.{AnswersPiece, DecoderState, EndsTrace, HasTaken, decoder_after, fresh};
ghost use Rattle.trace_codec.specs.Pieces.{Feeds};
ghost use Rattle.trace_codec.specs.Whole.{Decodes};

/// A decoder splits a trace as a whole is split, whatever the pieces. The taken bytes and the returned commands satisfy `HasTaken`
/// at the start, after each answer, and after any list of pieces, until it refuses the trace or the trace ends.
pub fn pieces_decode()
    ensures start { HasTaken [] [] fresh }
    ensures got { (bytes piece : List ℕ) (commands : List Command) (decoder : DecoderState) (command : Command)
        (used : ℕ)
        → HasTaken bytes commands decoder → AnswersPiece decoder piece (fed.Got command used)
        → HasTaken (bytes ++ take used piece) (commands ++ command ∷ [])
        (decoder_after decoder piece (fed.Got command used)) }
    ensures all { (bytes piece : List ℕ) (commands : List Command) (decoder : DecoderState) →
        HasTaken bytes commands decoder → AnswersPiece decoder piece fed.All →
        HasTaken (bytes ++ piece) commands (decoder_after decoder piece fed.All) }
    ensures pieces { (pieces : List (List ℕ)) (commands : List Command) (decoder : DecoderState) →
        Feeds pieces commands decoder → HasTaken (flat_map (λ piece. piece) pieces) commands decoder }

    // Whatever bytes follow.
    ensures bad { (bytes piece more : List ℕ) (commands : List Command) (decoder : DecoderState) (offset : ℕ) →
        HasTaken bytes commands decoder → AnswersPiece decoder piece (fed.Bad offset) →
        Decoding ((bytes ++ piece) ++ more) (Err (BadAt offset)) }

    // If no more bytes come.
    ensures whole { (bytes : List ℕ) (commands : List Command) (decoder : DecoderState) →
        HasTaken bytes commands decoder → EndsTrace {A = Unit {0}} decoder (Ok tt) → Decodes bytes (Ok commands) }
    ensures cut { (bytes : List ℕ) (commands : List Command) (decoder : DecoderState) (refusal : TraceRefusal)
        → HasTaken bytes commands decoder → EndsTrace {A = Unit {0}} decoder (Err refusal)
        → Decodes bytes (Err (fault.Refused refusal)) }
{}

/// Encoded commands decode to the same commands, and a decoded trace encodes to the same bytes.
pub fn encoding_and_decoding()
    ensures decoded { (commands : List Command) (bytes : List ℕ) (answer : Result (List Command) TraceFault) →
        Cutting bytes commands → Decodes bytes answer → answer ≢ Err fault.Memory → answer ≡ Ok commands }
    ensures encoded { (bytes again : List ℕ) (commands : List Command) →
        Decodes bytes (Ok commands) → Cutting again commands → again ≡ bytes }
{}
