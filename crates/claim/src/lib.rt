// The claim about whole lists of calls (specs/Claim.antt), proved from what each call promises (proofs/Claim.antt). It has no code.
#![tactic(auto)]
