#![tactic(auto)]
// No code: a sheet that is written is read back as the same content, a sheet that is accepted is written again as the same bytes, and a joint
// sheet is a written one.
