// The starred lines of document 01's "Panels worked through": one table (specs/Starred.antt) and one claim about the definitions
// (proofs/Claim.antt). Beside it a table of further rows (specs/Further.antt), of charring, of two fires, of ratings and of least cuts, and
// its claim (proofs/Further.antt). No code.
#![tactic(auto)]
