// What document 01 says of matching beyond its definitions: theorems over paper's Matching. No code.
