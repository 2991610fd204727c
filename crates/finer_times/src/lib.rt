// Layer times in c times as many parts of a minute, whatever the parts and c: of no accepted panel is anything of the sum or a minute of EI lost,
// as stated in specs/Finer.antt and proved in proofs/Panels.antt. No code.
#![tactic(auto)]
