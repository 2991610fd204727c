// Demand 3 of the user, stated in specs/Demand3.antt and proved in proofs/LoadMinute.antt. Beside it, each stated and proved in files of one
// name: the failure time in minutes and seconds (document 02, 5/14) in Seconds, EI and the grades on a card in Ratings, that thousandths of a
// minute lose nothing of these (8/14) in FinerTimes, the least cut (7/14) in Planing. No code.
#![tactic(auto)]
