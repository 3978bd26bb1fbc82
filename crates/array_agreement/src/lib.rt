#![tactic(auto)]
// No code: whole runs and runs by hand agree with the plain run, and a tile after a tick depends only on itself and on the wires that lead to it.
