// Laws of a whole file: what reading accepts writing does not refuse, and what writing does not refuse is read back. No code.
