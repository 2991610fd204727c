// Document 01's "Charring", sentence by sentence, as one record about any depth and any phase (specs/Charring.antt): the defined ones of
// every accepted panel keep it (proofs/Stated.antt), and nothing else does (proofs/Fixed.antt). And the first run, at t_f, by whether bond lines
// were passed before, up to R (specs/FirstRun.antt). No code.
#![tactic(auto)]
