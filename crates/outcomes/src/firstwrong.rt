// Which row and field writing refuses with 20 and 21: exactly the first that break a rule. No code.
