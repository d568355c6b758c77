// A small message, to begin with.
ghost use Rattle.std.specs.Prelude.{◌≡◌};
ghost use Rattle.nas.specs.Sample.{sample, SampleReads};

/// The initial request of session 1, with a payload of four octets.
pub fn sample_message() -> [u8; 13]
    ensures { result ≡ sample }
{
    *b"\x7E\x00\x67\x01\x00\x04\x2E\x01\x01\xC1\x12\x01\x81"
}

// What the definition of reading makes of it, by computation.
#[tactic(auto, unfolding(crate::specs::Uplinks::walk))]
fn sample_reads()
    ensures { SampleReads }
{}
