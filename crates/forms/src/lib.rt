// The forms of a whole number and of a time, read and written: what holds of them. There is no code here, only proofs/ and the words of specs/.
