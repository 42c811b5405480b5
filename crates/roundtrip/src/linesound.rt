// Laws of one line: what a line says is as a batch may hold it and as its sheet can carry it. No code.
