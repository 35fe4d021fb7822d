// Which event sources there are: "Supported sources: counting 01h to 06h, 20h to 2Ah, 40h to 45h; peak 2Bh to 2Eh." #102: "Write
// the decision as the ranges of document 01's line, in that order." A source has 32 bits and is taken whole: 12Dh is not 2Dh.
// docs/SOURCES.md lays T10's table beside these ranges.
ghost use Rattle.std.specs.Prelude.{◌≡◌};
ghost use Rattle.model.specs.Sources.{counting, peak, supported};

// "counting 01h to 06h, 20h to 2Ah, 40h to 45h"
#[tactic(auto, unfolding(model::specs::Sources::counting))]
pub fn counting(source: u32) -> bool
    ensures { result ≡ counting source }
{
    matches!(source, 0x01..=0x06 | 0x20..=0x2A | 0x40..=0x45)
}

// "peak 2Bh to 2Eh"
#[tactic(auto, unfolding(model::specs::Sources::peak))]
pub fn peak(source: u32) -> bool
    ensures { result ≡ peak source }
{
    matches!(source, 0x2B..=0x2E)
}

// "Supported sources": both kinds, and so not 00h
#[tactic(auto, unfolding(model::specs::Sources::supported))]
pub fn supported(source: u32) -> bool
    ensures { result ≡ supported source }
{
    counting(source) || peak(source)
}
