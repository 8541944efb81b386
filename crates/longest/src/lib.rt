// Ports no file of the original: sizing is added. What a format's size is stands in specs/, that it is so in proofs/.
#![tactic(auto)]
