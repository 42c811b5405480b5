// Laws of texts: what is read, a batch may hold and its sheet can carry; what it can carry, reads back. No code.
