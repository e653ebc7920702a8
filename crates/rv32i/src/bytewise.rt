//! Loads and stores, byte by byte.
ghost use Rattle.rv32i.specs.Bytewise.{LoadsItsBytes, StoresItsBytes};

/// A law that is asked for here and does no work: shifted words and flagged lanes are a load's and a store's own bytes.
pub fn accesses_are_bytewise()
    ensures loads { LoadsItsBytes }
    ensures stores { StoresItsBytes }
{}
