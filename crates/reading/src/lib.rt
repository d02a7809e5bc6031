// Laws about document 01's lines and their reading, in proofs/. No code.
