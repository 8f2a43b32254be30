//! Laws of emitted entities as they read, each the contract of a function that does nothing.
ghost use Rattle.lh_cert_emitted.specs.Laws.{CombSaysRows, OnceSaysRows, EdgeSaysRows};

/// An emitted entity says the rows that it was emitted from, each term read again from its leaves. It probes the parts that are waited on,
/// and beyond them only parts that its rows read.
pub fn emitted_say_rows()
    ensures comb { CombSaysRows }
    ensures once { OnceSaysRows }
    ensures edge { EdgeSaysRows }
{}
