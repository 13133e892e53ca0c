//! Laws along a script's lives that stand on those of `dkg_lives`: lemmas without code, which `dkg_promises` cites.
#![tactic(auto)]
